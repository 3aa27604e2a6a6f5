// What `code` is asked to do with hold files.
ghost use Rattle.std.specs.Prelude.{◌≡◌};
ghost use Rattle.holdjobs.specs.Asked.{from_reset, known, stores};

use turns::End;

// Whether a run with so many arguments begins from a reset: it has no FROM, or a FROM that is `-`.
#[tactic(auto, using(console::proofs::Words::same_is), unfolding(crate::specs::Asked::from_reset, console::specs::Text::bytes_in, lists::specs::Lists::table))]
pub fn from_reset(count: usize, from: &[u8]) -> bool
    ensures { result ≡ from_reset count from.now }
{
    count < 4 || from == b"-".as_slice()
}

// Whether it is known what went out.
#[tactic(auto, unfolding(crate::specs::Asked::known))]
fn known(end: End) -> bool
    ensures { result ≡ known end }
{
    !matches!(end, End::Unwritten)
}

// Whether a run with so many arguments stores a file at its end.
#[tactic(auto, unfolding(crate::specs::Asked::stores))]
pub fn stores(count: usize, end: End) -> bool
    ensures { result ≡ stores count end }
{
    count == 5 && known(end)
}
