//! The reference implementation of cutting, with which the fast one is compared: at each position
//! where a chunk may end the whole window is divided anew.

ghost use Rattle.std.specs.Prelude.{◌≡◌, ◌<◌, ◌≤◌, ◌^◌, IfOk, length};
ghost use Rattle.sd_base.specs.Cutting.{cuts_of, next_cut};
ghost use Rattle.sd_base.specs.Params.{numbers_of};

use rabin_window::{Tables, Window};
use sd_base::{OutOfMemory, Params, WINDOW};
use std::alloc::Global;

/// The cuts of an input, in order, found by plain division. Its contract is that of the
/// implementation that `plan` runs. It is a reference, and slow. It fails only if memory runs out.
/// After LBFS (SOSP 2001, section 3.1).
pub fn plain_cuts(alloc: Global, params: &Params, input: &[u8]) -> Result<Vec<u32>, OutOfMemory>
    requires { length input.now ≤ 2 ^ 28 }
    ensures { IfOk result (λ cuts. cuts.items ≡ cuts_of (numbers_of params.now) input.now) }
{
    let tables = Tables::new(params);
    let mut cuts = Vec::new(alloc);
    let mut start = 0u32;
    while (start as usize) < input.len() {
        start = next_cut_from(&tables, params, input, start);
        cuts.push(start)?;
    }
    Ok(cuts)
}

// The next cut from a start.
fn next_cut_from(tables: &Tables, params: &Params, input: &[u8], start: u32) -> u32
    requires same_polynomial { tables.now.polynomial ≡ params.now.polynomial }
    requires inside { start < length input.now }
    requires fits { length input.now ≤ 2 ^ 28 }
    ensures { result ≡ next_cut (numbers_of params.now) input.now start }
{
    let furthest = (start + params.max).min(input.len() as u32);
    for position in start + params.min..furthest + 1 {
        let end = position as usize;
        if Window::start(tables, &input[end - WINDOW as usize..end]).is_match(params) {
            return position;
        }
    }
    furthest
}
