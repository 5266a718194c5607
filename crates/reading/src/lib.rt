// Read: the value of a root under inputs.
#![tactic(auto)]

ghost use Rattle.std.specs.Prelude.{◌≡◌};
ghost use Rattle.diagrams.specs.Lookup.{lookup};
ghost use Rattle.diagrams.specs.Value.{chosen, value};
ghost use Rattle.reading.specs.Read.{input_of, bad_inputs, ReadOutcome};

use checks::{Fault, Refusal};
use diagrams::{Reference, Variable};

// ---- the value of a reference

fn input(inputs: &[u8], v: Variable) -> bool
    ensures { result ≡ input_of inputs.now v.0 }
{
    inputs.get(v.0) == Some(&1)
}

// The low or high reference of the record that x names, by its variable's input; x itself where it names none.
fn child(table: &[u8], inputs: &[u8], x: Reference) -> Reference
    ensures { result.0 ≡ chosen (input_of inputs.now) (lookup table.now x.0) x.0 }
{
    if !x.names_record(table) {
        return x;
    }
    let i = x.record();
    if i.is_free(table) {
        return x;
    }
    if input(inputs, i.variable(table)) {
        return i.high(table);
    }
    i.low(table)
}

// The value of x, with so many levels left to fall through.
fn reads_true(table: &[u8], inputs: &[u8], x: Reference, levels: usize) -> bool
    ensures { result ≡ value (lookup table.now) (input_of inputs.now) levels x.0 }
{
    if x.is_constant() || levels == 0 {
        return x == Reference(1);
    }
    reads_true(table, inputs, child(table, inputs, x), levels - 1)
}

// ---- 11

fn bad_inputs(order: &[u8], inputs: &[u8]) -> bool
    ensures { result ≡ bad_inputs order.now inputs.now }
{
    inputs.len() != order.len() || inputs.iter().any(|&input| 1 < input)
}

// ---- the entry

// The value of a root, or a refusal.
pub fn read(
    table: &[u8],
    roots: &[u8],
    order: &[u8],
    position: usize,
    inputs: &[u8],
) -> Result<bool, Refusal>
    ensures { ReadOutcome table.now roots.now order.now position inputs.now result }
{
    checks::verdict_of_all(table, roots, order)?;
    Fault::NoRoot.refuse_if(diagrams::count_roots(roots) <= position, position)?;
    Fault::BadInputs.refuse_if(bad_inputs(order, inputs), 0)?;
    let root = diagrams::root(roots, position);
    Ok(reads_true(table, inputs, root, order.len()))
}
