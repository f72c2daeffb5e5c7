// Whether items stand among others.
ghost use Rattle.std.specs.Prelude.{◌≡◌, Ok, IfOk};
ghost use Rattle.apl_arrays.specs.Answers.{Answers};
ghost use Rattle.apl_arrays.specs.Cells.{Characters};
ghost use Rattle.apl_arrays.specs.Left.{listed};
ghost use Rattle.apl_arrays.specs.Numbers.{values};
ghost use Rattle.apl_search.specs.Found.{membership, verdicts_in};

use crate::lookup::{codes_of, standing_among};
use apl_arrays::{Array, Elements, NumberSlice, NumberVec, Ravel, Stop};
use apl_charset::Ch;
use std::alloc::{AllocError, Global};

/// For each character 1 where it stands among others, else 0.
fn characters_standing(alloc: Global, sought: &[Ch], among: &[Ch]) -> Result<Vec<i8>, AllocError>
    ensures { IfOk result (λ v. v.items ≡ verdicts_in (Characters sought.now) (Characters among.now)) }
{
    let among = codes_of(alloc, among)?;
    let sought = codes_of(alloc, sought)?;
    let verdicts = standing_among(
        alloc,
        NumberSlice::I32(sought.as_slice()),
        NumberSlice::I32(among.as_slice()),
    )?;
    Ok(verdicts)
}

/// For each item 1 where it stands among others, else 0.
fn standing_in(
    alloc: Global,
    sought: Elements<'_>,
    among: Elements<'_>,
) -> Result<Vec<i8>, AllocError>
    ensures { IfOk result (λ v. v.items ≡ verdicts_in (listed sought.entry) (listed among.entry)) }
{
    match among {
        Elements::Nums(among) => match sought {
            Elements::Nums(sought) => standing_among(alloc, sought, among),
            Elements::Chars(sought) => vec![in alloc; 0i8; sought.len()],
        },
        Elements::Chars(among) => match sought {
            Elements::Nums(sought) => vec![in alloc; 0i8; sought.len()],
            Elements::Chars(sought) => characters_standing(alloc, sought, among),
        },
    }
}

/// For each item of `a` 1 where it stands in `b`, else 0, in the shape of `a`. A character is never equal to a number. There is no fault.
pub fn member(alloc: Global, a: &Array, b: &Array) -> Result<Array, Stop>
    ensures { Answers (λ r. r) (Ok (membership a.now b.now)) result }
{
    let verdicts = standing_in(alloc, a.items(), b.items())?;
    Ok(a.with_ravel(alloc, Ravel::Nums(NumberVec::I8(verdicts)))?)
}
