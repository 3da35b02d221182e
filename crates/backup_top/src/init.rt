ghost use Rattle.std.specs.Prelude.{◌≡◌, IfOk, Ok, string_bytes};
ghost use Rattle.sd_base.specs.OnePass.{pass_of_init, pass_of_valid_init};
ghost use Rattle.sd_base.specs.Parameters.{bad_parameter};
ghost use Rattle.sd_base.specs.Params.{numbers_of};
ghost use Rattle.sd_base.specs.Texts.{ready_text};
ghost use Rattle.sd_base.specs.declared.words.Command.TheVariants.{Quiet as quiet};
ghost use Rattle.sd_base.specs.declared.words.Quiet.TheVariants.{Init};
ghost use Rattle.backup_top.specs.Steps.{MakesText};

use crate::store_outcome::outcome_of;
use edge_traits::Shelf;
use sd_base::{OutOfMemory, Outcome, Params, RawParams};
use std::alloc::Global;

/// Makes a store whose sessions are cut by these numbers: the text says that it is ready.
pub fn init<F: Shelf>(alloc: Global, raw: &RawParams, shelf: &mut F) -> Result<String, Outcome>
    ensures { MakesText (pass_of_init (bad_parameter raw.now) raw.now) (Ok (quiet (Init raw.now))) result
        F.files F.loose F.faults F.faultless shelf.old shelf.new }
{
    match Params::new(raw.polynomial, raw.bits, raw.target, raw.min, raw.max) {
        Ok(params) => init_valid(alloc, &params, shelf),
        Err(kind) => Err(Outcome::BadParams(kind)),
    }
}

// The same with parameters that are valid. The text is made first: if memory runs out, the files
// are as they were.
fn init_valid<F: Shelf>(alloc: Global, params: &Params, shelf: &mut F) -> Result<String, Outcome>
    ensures { MakesText (pass_of_valid_init (numbers_of params.now)) (Ok (quiet (Init (numbers_of params.now)))) result
        F.files F.loose F.faults F.faultless shelf.old shelf.new }
{
    let Ok(text) = text_of_init(alloc) else {
        return Err(Outcome::OutOfMemory);
    };
    match store_core::init(alloc, shelf, params) {
        Ok(()) => Ok(text),
        Err(fault) => Err(outcome_of(fault)),
    }
}

// The text of `init`.
fn text_of_init(alloc: Global) -> Result<String, OutOfMemory>
    ensures { IfOk result (λ text. string_bytes text ≡ ready_text) }
{
    Ok(String::from_str(alloc, "ready\n")?)
}
