#![tactic(auto)]

// The C interface: each call takes numbers and byte buffers and gives one 64-bit word, which
// interface/specs/Word.antt lays down. Every call has paper 01's limits. Every call but the plain test takes a
// definitions book, in front of its other buffers.
ghost use Rattle.std.specs.Prelude.{◌≡◌};
ghost use Rattle.table.specs.Bounds.{bench_limits};
ghost use Rattle.interface.specs.Calls.{LcsGives, MostSpecificGives, NormalizeGives, SubsumesGives, VerifyGives};
ghost use Rattle.interface.specs.Calls.{validate_word};

use answer_word::answers::{
    common_word, normalized_word, read_word, selected_word, verdict_word, verified_word,
};
use evidence_check::verify::verify;
use lcs_call::call::lcs;
use most_specific::most_specific::most_specific;
use normalize_call::normalize::normalize;
use picture::answer::Input;
use picture_reader::read::read;
use subsumes::subsumes::subsumes;
use table::layout::Limits;

// Tests one picture, and gives its row count.
#[unsafe(no_mangle)]
pub extern "C" fn zuvaropy_validate(picture: &[u8]) -> u64
    ensures { result ≡ validate_word bench_limits picture.now }
{
    read_word(read(picture, Limits::bench(), Input::First))
}

// Writes the normal table of a picture, unfolded, and gives its length in bytes.
#[unsafe(no_mangle)]
pub extern "C" fn zuvaropy_normalize(definitions: &[u8], picture: &[u8], res: &mut [u8]) -> u64
    ensures { NormalizeGives bench_limits definitions.now picture.now
        res.old result res.new }
{
    normalized_word(normalize(definitions, picture, Limits::bench(), res))
}

// The verdict: whether the second picture covers the first, under the definitions. The evidence is written into the
// result buffer, and its length given; the normal tables of the unfolded pictures stand in the work space then.
#[unsafe(no_mangle)]
pub extern "C" fn zuvaropy_subsumes(
    definitions: &[u8],
    first: &[u8],
    second: &[u8],
    work: &mut [u8],
    res: &mut [u8],
) -> u64
    ensures { SubsumesGives bench_limits definitions.now first.now second.now
        work.old res.old result work.new res.new }
{
    verdict_word(subsumes(definitions, first, second, Limits::bench(), work, res))
}

// The common picture of two pictures, their least common subsumer under the definitions, is written into the result
// buffer, and its length given. Once 14 is answered yes for both, the normal tables of the unfolded pictures stand in
// the work space, also where 15 is answered no.
#[unsafe(no_mangle)]
pub extern "C" fn zuvaropy_lcs(
    definitions: &[u8],
    first: &[u8],
    second: &[u8],
    work: &mut [u8],
    res: &mut [u8],
) -> u64
    ensures { LcsGives bench_limits definitions.now first.now second.now
        work.old res.old result work.new res.new }
{
    common_word(lcs(definitions, first, second, Limits::bench(), work, res))
}

// Checks evidence for two pictures, unfolded: a map taken or a refutation taken. Once 14 is answered yes for both,
// their normal tables stand in the work space.
#[unsafe(no_mangle)]
pub extern "C" fn zuvaropy_verify(
    definitions: &[u8],
    first: &[u8],
    second: &[u8],
    evidence: &[u8],
    work: &mut [u8],
) -> u64
    ensures { VerifyGives bench_limits definitions.now first.now second.now
        evidence.now work.old result work.new }
{
    verified_word(verify(definitions, first, second, evidence, Limits::bench(), work))
}

// The most specific cards of a book that subsume a case, under the definitions: the nearest ones. The work space is
// zero then.
#[unsafe(no_mangle)]
pub extern "C" fn zuvaropy_most_specific(
    definitions: &[u8],
    case: &[u8],
    book: &[u8],
    work: &mut [u8],
) -> u64
    ensures { MostSpecificGives bench_limits definitions.now case.now book.now
        work.old result work.new }
{
    selected_word(most_specific(definitions, case, book, Limits::bench(), work))
}
