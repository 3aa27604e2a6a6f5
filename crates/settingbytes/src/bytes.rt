// Settings from their bytes.
ghost use Rattle.std.specs.Prelude.{◌≡◌, length, ◌≤◌};
ghost use Rattle.settingbytes.specs.Bytes.{settings_of, taken};

use refusal::Refusal;
use settings::Settings;

// Settings from their ten bytes, with which the slice begins.
#[tactic(auto, unfolding(crate::specs::Bytes::settings_of))]
pub fn settings_of(bytes: &[u8]) -> Settings
    requires { 10 ≤ length bytes.now }
    ensures { result ≡ settings_of bytes.now }
{
    Settings {
        mode: bytes[0],
        occupancy: bytes[1],
        msc: bytes[2],
        levela: bytes[3],
        levelb: bytes[4],
        vspp: bytes[5],
        x: u16::from_be_bytes([bytes[6], bytes[7]]),
        sdc: bytes[8],
        interleaving: bytes[9],
    }
}

// Settings that a caller lends, which are ten bytes and no other number of them.
#[tactic(auto, unfolding(crate::specs::Bytes::taken))]
pub fn taken(bytes: &[u8]) -> Result<Settings, Refusal>
    ensures { result ≡ taken bytes.now }
{
    if bytes.len() != 10 {
        return Err(Refusal::FixedLength);
    }
    Ok(settings_of(bytes))
}
