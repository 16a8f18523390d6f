//! The inputs of the workload.
#![tactic(auto, unfolding(crate::specs::Generated::input_text), using(crate::proofs::WorkloadLemmas::letters_more, crate::proofs::WorkloadLemmas::inputs_more))]

ghost use Rattle.std.specs.Prelude.{◌≡◌, ◌≤◌, map, IfOk};
ghost use Rattle.std.specs.List.{range_with_len};
ghost use Rattle.lio_host_main.specs.Generated.{input_text};

use lio_clauses::NoMemory;
use lio_values::{List, Text};
use std::alloc::Global;

/// An input: letters in the order of the alphabet, from one that depends on its number on and round
/// again, at most 50.
fn make_input(alloc: Global, number: u32) -> Result<Text, NoMemory>
    requires { number ≤ 256 }
    ensures { IfOk result (λ input. input ≡ input_text number) }
{
    let mut input = Vec::new(alloc);
    for place in 0..number % 50 + 1 {
        input.push(b'a' + ((number + place) % 26) as u8)?;
    }
    Text::of_vec(alloc, input)
}

/// The inputs with the numbers below a count.
pub(crate) fn make_inputs(alloc: Global, count: u32) -> Result<List<Text>, NoMemory>
    requires { count ≤ 256 }
    ensures { IfOk result (λ inputs. inputs ≡ map input_text (range_with_len 0 count)) }
{
    let mut inputs = List::new(alloc);
    for number in 0..count {
        inputs.push(make_input(alloc, number)?)?;
    }
    Ok(inputs)
}
