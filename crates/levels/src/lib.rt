// The levels of a face's sizes: document 01's rule and the call that fills a levels buffer.
#![tactic(auto)]

ghost use Rattle.std.specs.Prelude.{◌≡◌, ◌≤◌, min, length};
ghost use Rattle.checks.specs.Answer.{number};
ghost use Rattle.checks.specs.Limits.{most_sizes};
ghost use Rattle.facefile.specs.Format.{face_of};
ghost use Rattle.levels.specs.Levels.{uncut_level, top_level, levels_from, levels_call, levels_filled};
ghost use Rattle.levels.specs.inside.Taken.{Fillable, OwnLevels};

use checks::Check;
use depths::{Depths, depths_of};
use facefile::reader;

// The level of size r before it is cut to the top level, for a size of a face: the trailing zero bits of r, halved, plus
// one.
fn uncut_level(r: usize) -> u32
    requires { (1 ≤ r) × (r ≤ most_sizes) }
    ensures { result ≡ uncut_level r }
{
    u32::trailing_zeros(r as u32) / 2 + 1
}

// The level of size r, cut to the top level.
fn cut_level(r: usize, top: u8) -> u8
    requires { (1 ≤ r) × (r ≤ most_sizes) }
    ensures { result ≡ min (uncut_level r) top }
{
    uncut_level(r).min(u32::from(top)) as u8
}

// The top level of a face of n sizes.
#[tactic(auto, using(crate::proofs::TopLevel::by_comparisons))]
fn top_level(n: usize, d: Depths) -> u8
    requires { (n ≤ most_sizes) × (d.least ≤ 63) }
    ensures { result ≡ top_level n d.least d.most }
{
    if d.most <= 2 * d.least {
        return 1;
    }
    match n {
        0..128 => 1,
        128..512 => 2,
        _ => 3,
    }
}

// Fills the buffer with the levels of sizes 1, 2 and so on, cut to the top level.
#[tactic(auto, unfolding(crate::specs::Levels::levels_from))]
fn fill_cut(levels: &mut [u8], top: u8)
    requires { length levels.old ≤ most_sizes }
    ensures { levels.new ≡ levels_from top 1 (length levels.old) }
{
    for (i, level) in levels.iter_mut().enumerate() {
        *level = cut_level(i + 1, top);
    }
}

// Fills the buffer with the levels of the sizes of a taken file, which has as many. It is for callers that have made
// checks 1 to 14.
pub fn fill_taken(file: &[u8], levels: &mut [u8])
    requires { Fillable file.now (length levels.old) }
    ensures { OwnLevels file.now levels.new }
{
    let top = top_level(levels.len(), depths_of(file));
    fill_cut(levels, top);
}

// Checks 1 to 14, then the levels of the face's sizes in the buffer, which has as many bytes.
fn filled(file: &[u8], levels: &mut [u8]) -> Result<(), Check>
    ensures value { number result ≡ number (levels_call (face_of file.now) (length levels.old)) }
    ensures levels_after { levels.new ≡ levels_filled (levels_call (face_of file.now) (length levels.old)) levels.old }
{
    let counts = reader::counts(file)?;
    lent::level_count(counts.sizes, levels.len())?;
    fill_taken(file, levels);
    Ok(())
}

// Checks 1 to 14, then the levels of the face's sizes in the buffer, which has as many bytes. A refusal leaves the
// buffer as it was. It answers a number and no `Result`, since document 01 says so of every call (docs/DECISIONS.md).
pub fn fill(file: &[u8], levels: &mut [u8]) -> u32
    ensures value { result ≡ number (levels_call (face_of file.now) (length levels.old)) }
    ensures levels_after { levels.new ≡ levels_filled (levels_call (face_of file.now) (length levels.old)) levels.old }
{
    match filled(file, levels) {
        Ok(()) => 0,
        Err(check) => check.number(),
    }
}
