//! The numbers of the functions of a pair.
ghost use Rattle.std.specs.Prelude.{◌≡◌, ◌*◌, OnOk, IfOk};
ghost use Rattle.dv_gen.specs.Draws.{state_after};
ghost use Rattle.dv_gen.specs.Functions.{numbers_of, functions_of};

use crate::draws::Draws;
use std::alloc::{AllocError, Global};

/// The numbers of a function of the old source.
#[derive(Clone, Copy)]
pub struct Function {
    /// The number with which the parameter is compared.
    pub bound: u8,
    /// The number that is taken where the parameter is greater.
    pub taken: u8,
    /// The number that is added where it isn't.
    pub added: u8,
}

/// Draws the numbers of so many functions, three for each. An `Err` is want of memory.
pub fn draw_functions(
    alloc: Global,
    draws: &mut Draws,
    size: u32,
) -> Result<Vec<Function>, AllocError>
    ensures functions { IfOk result (λ functions. functions.items ≡ functions_of draws.old.state size) }
    ensures state { OnOk result (draws.new.state ≡ state_after draws.old.state (3 * size)) }
{
    let mut functions = Vec::new(alloc);
    for _ in 0..size {
        functions.push(draw_function(draws))?;
    }
    Ok(functions)
}

fn draw_function(draws: &mut Draws) -> Function
    ensures numbers { result ≡ numbers_of draws.old.state 0 }
    ensures state { draws.new.state ≡ state_after draws.old.state 3 }
{
    let bound = draws.draw(256) as u8;
    let taken = draws.draw(16) as u8;
    let added = draws.draw(16) as u8;
    Function {
        bound,
        taken,
        added,
    }
}
