// Settings with a puncturing table: the refusals of both, and the standard's table. 02 S-11.
ghost use Rattle.std.specs.Prelude.{◌≡◌, length};
ghost use Rattle.channels.specs.Scheme.{scheme_of, scheme_refusal, standard_scheme};
ghost use Rattle.refusal.specs.Numbers.{answer};

use crate::Scheme;
use loadedtable::test::passes;
use patterns::table::TABLE_SIZE;
use refusal::Refusal;
use settings::{Settings, refusals};

// Whether settings with a lent table are refused: by 1 to 7, then by 23, which a table of another length has too.
#[tactic(auto, using(refusal::proofs::Positive::number_positive), unfolding(crate::specs::Scheme::scheme_refusal, settings::specs::Refusal::first))]
pub fn check_table(s: Settings, table: &[u8]) -> Result<(), Refusal>
    ensures { answer result ≡ scheme_refusal (scheme_of s table.now) }
{
    refusals::check(s)?;
    if !passes(table) {
        return Err(Refusal::Table);
    }
    Ok(())
}

// The same of a scheme.
pub fn check_scheme(c: Scheme) -> Result<(), Refusal>
    ensures { answer result ≡ scheme_refusal c }
{
    check_table(c.settings, &c.table)
}

// Settings with a lent table.
pub fn scheme_of(s: Settings, table: &[u8]) -> Scheme
    requires { length table.now ≡ 196 }
    ensures { result ≡ scheme_of s table.now }
{
    let mut kept = [0u8; TABLE_SIZE];
    kept.copy_from_slice(table);
    Scheme {
        settings: s,
        table: kept,
    }
}

// Settings with the standard's table.
#[tactic(auto, unfolding(crate::specs::Scheme::standard_scheme))]
pub fn standard_scheme(s: Settings) -> Scheme
    ensures { result ≡ standard_scheme s }
{
    Scheme {
        settings: s,
        table: patterns::table::standard_table(),
    }
}
