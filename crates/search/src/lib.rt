// The search: the walk of document 01 over a table in lent slices (aux.rs, cache.rs, cm.rs), in one go: the search in slices with budget enough.
#![tactic(auto)]

ghost use Rattle.std.specs.Prelude.{◌≡◌, ◌<◌};
ghost use Rattle.walk.specs.Input.{input_of};
ghost use Rattle.search.specs.Table.{cols};
ghost use Rattle.search.specs.Search.{Searched};
ghost use Rattle.search.specs.Inner.{end_of};

use counting::Counts;
use formula::kinds::Node;
use rules::refusal::Refusal;
use state::{End, State};

// FOUND with the root node over the kept list, NONE, FULL at a size, each with the counts.
#[derive(Clone, Copy)]
pub enum SearchAnswer {
    Found { root: Node, counts: Counts },
    None(Counts),
    Full { size: u8, counts: Counts },
}

// The answer where the walk has ended.
fn end_of(state: State) -> SearchAnswer
    requires { state.size < 256 }
    ensures { result ≡ end_of state }
{
    let counts = state.counts;
    match state.end {
        End::Found => SearchAnswer::Found {
            root: state.root,
            counts,
        },
        End::Full => SearchAnswer::Full {
            size: state.size as u8,
            counts,
        },
        End::None | End::More => SearchAnswer::None(counts),
        End::Other(_) => SearchAnswer::None(counts),
    }
}

// The smallest formula that separates the sessions marked 1 from those marked 0. It takes r sessions and m propositions (marks, lengths, words m per
// session), the bound B, the room C, the constants mark and the operator codes offered; it refuses with a number of document 01's table, in its
// order, and then writes nothing. Else it answers FOUND, NONE or FULL, with the kept formulas' nodes and matrices in the five lent slices from
// place 0 on; what stands after them stays.
pub fn search(
    r: usize,
    m: usize,
    bound: usize,
    room: usize,
    constants: u8,
    marks: &[u8],
    lengths: &[u8],
    words: &[u64],
    unary: &[u8],
    binary: &[u8],
    codes: &mut [u8],
    lefts: &mut [u16],
    rights: &mut [u16],
    sizes: &mut [u8],
    matrices: &mut [u64],
) -> Result<SearchAnswer, Refusal>
    ensures { Searched
        (input_of r m bound room constants marks.now lengths.now words.now unary.now binary.now)
        (cols codes.old lefts.old rights.old sizes.old matrices.old)
        result
        (cols codes.new lefts.new rights.new sizes.new matrices.new) }
{
    let state = slices::advance(
        r,
        m,
        bound,
        room,
        constants,
        marks,
        lengths,
        words,
        unary,
        binary,
        u64::MAX,
        slices::fresh(),
        codes,
        lefts,
        rights,
        sizes,
        matrices,
    )?;
    Ok(end_of(state))
}
