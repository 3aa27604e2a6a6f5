// A state as bytes.
ghost use Rattle.std.specs.Prelude.{◌≡◌, length};
ghost use Rattle.statebytes.specs.Bytes.{state_of, front_bytes, state_bytes};

use channels::tables::scheme_of;
use settingbytes::bytes::settings_of;
use superframe::State;

// A state from its 208 bytes.
// Stays: docs/PROMISES.md names this function; `&[u8; 208]` would ask of a caller that has a slice of that length to turn it into an array.
pub fn state_of(bytes: &[u8]) -> State
    requires { length bytes.now ≡ 208 }
    ensures { result ≡ state_of bytes.now }
{
    State {
        scheme: scheme_of(settings_of(bytes), &bytes[12..]),
        position: bytes[10],
        count: bytes[11],
    }
}

// The twelve bytes before the table.
fn put_front(state: State, bytes: &mut [u8])
    requires { length bytes.old ≡ 12 }
    ensures { bytes.new ≡ front_bytes state }
{
    let s = state.scheme.settings;
    let [high, low] = s.x.to_be_bytes();
    bytes.copy_from_slice(&[
        s.mode,
        s.occupancy,
        s.msc,
        s.levela,
        s.levelb,
        s.vspp,
        high,
        low,
        s.sdc,
        s.interleaving,
        state.position,
        state.count,
    ]);
}

// A state into the 208 bytes that a caller lends.
// Stays: docs/PROMISES.md names this function; `&mut [u8; 208]` would ask of a caller that has a slice of that length to turn it into an array.
pub fn put_state(state: State, bytes: &mut [u8])
    requires { length bytes.old ≡ 208 }
    ensures { bytes.new ≡ state_bytes state }
{
    let table = state.scheme.table;
    put_front(state, &mut bytes[0..12]);
    bytes[12..].copy_from_slice(&table);
}
