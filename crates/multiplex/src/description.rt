// A multiplex description: of each stream the bytes of part A and of part B. 001 clause 6.4.3.1; 02, S-8.
ghost use Rattle.std.specs.Prelude.{◌≡◌, true, length};
ghost use Rattle.settings.specs.Refusal.{refusal};
ghost use Rattle.multiplex.specs.Clauses.{Small};
ghost use Rattle.multiplex.specs.Description.{described, uncounted, head_bytes, layout_of, fits};

use crate::Layout;
use frameparts::parts::sums;
use partlengths::formulas::hierarchical;
use settings::Settings;
use settings::answers::all_lengths;

// The numbers of a stream.
const STREAM: usize = 2;

// The numbers of four streams.
const MOST_NUMBERS: usize = 8;

// Whether a description has the numbers of one to four streams.
pub fn described(numbers: usize) -> bool
    ensures { result ≡ described numbers }
{
    (numbers % STREAM == 0) & ((0 < numbers) & (numbers <= MOST_NUMBERS))
}

// The numbers of the streams that count in neither part: in MSC modes 1 and 2 those of stream 0.
pub fn uncounted(msc: u8) -> usize
    ensures { result ≡ uncounted msc }
{
    if hierarchical(msc) { STREAM } else { 0 }
}

// The bytes of the hierarchical frame: in MSC modes 1 and 2 the second number of stream 0.
fn head_bytes(msc: u8, description: &[u16]) -> u16
    requires { described (length description.now) ≡ true }
    ensures { result ≡ head_bytes msc description.now }
{
    if hierarchical(msc) {
        return description[1];
    }
    0
}

// What settings and description give a frame.
pub fn layout(s: Settings, description: &[u16]) -> Layout
    requires s_value { refusal s ≡ 0 }
    requires description_value { described (length description.now) ≡ true }
    ensures value { result ≡ layout_of s description.now }
    ensures small { Small result }
{
    let l = all_lengths(s);
    let first = uncounted(s.msc);
    let head = head_bytes(s.msc, description);
    let all = sums(&description[first..]);
    // Stays: a field `parts: Share` saves one line here, and every `l.a` and `l.b` in code and definitions would read `l.parts.a` and `l.parts.b`.
    Layout {
        vspp: l.vspp as usize,
        rest: l.l1 as usize + l.l2 as usize,
        head: head as usize,
        a: all.a,
        b: all.b,
    }
}

// Whether the parts A have X bytes, all parts fit after the VSPP, and the hierarchical frame fits the VSPP.
pub fn fits(l: Layout, x: u16) -> bool
    requires { Small l }
    ensures { result ≡ fits l x }
{
    (l.a == x as usize) & ((8 * (l.a + l.b) <= l.rest) & (8 * l.head <= l.vspp))
}
