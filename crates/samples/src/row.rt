// Rows for the cases.
ghost use Rattle.std.specs.Prelude.{◌≡◌};

use tasks::kind::Kind;
use tasks::row::Row;

// A row whose deadline is its period.
pub fn row(kind: Kind, normal: u32, abnormal: u32, section: u32, period: u32) -> Row
    ensures kind { result.kind ≡ kind }
    ensures times { (result.normal ≡ normal) × (result.abnormal ≡ abnormal) × (result.section ≡ section) }
    ensures window { (result.deadline ≡ period) × (result.period ≡ period) }
{
    Row {
        kind,
        normal,
        abnormal,
        section,
        deadline: period,
        period,
    }
}
