//! What terms are in the state of a machine.
ghost use Rattle.std.specs.Prelude.{◌≡◌, ◌+◌, ◌≤◌};
ghost use Rattle.object_store.specs.Store.{sizes_of};
ghost use Rattle.machine_state.specs.State.{state_of};
ghost use Rattle.questions.specs.Term.{IsOperandOf, IsTermOf, bytes_in, compares, number_in, operand_value, operated, term_value};

use crate::operand::{Comparison, Operand, Operator, Width};
use crate::term::{Term, Tree};
use machine_state::Machine;
use page_store::Page;
use walk_engine::Translator;

/// The 32 bits of a term.
pub(crate) fn term_value<T: Translator>(machine: &Machine<T>, term: &Term) -> u32
    requires { IsTermOf (sizes_of machine.now.objects) term.now }
    ensures { result ≡ term_value (state_of machine.now) term.now }
{
    match &term.tree {
        Tree::Leaf(operand) => operand_value(machine, *operand),
        Tree::Node(operator, first, second) => operated(
            *operator,
            term_value(machine, first),
            term_value(machine, second),
        ),
    }
}

/// Those of an operand.
fn operand_value<T: Translator>(machine: &Machine<T>, operand: Operand) -> u32
    requires { IsOperandOf (sizes_of machine.now.objects) operand }
    ensures { result ≡ operand_value (state_of machine.now) operand }
{
    let objects = machine.objects();
    match operand {
        Operand::Number { value } => value,
        Operand::Register { process, register } => machine.registers(process)[register as usize],
        Operand::Pc { process } => machine.pc(process),
        Operand::Bytes {
            width,
            page,
            offset,
        } => number_in(objects.page(page), offset, width),
        Operand::Age { kind, number } => objects.count(kind, number),
        Operand::Payload { endpoint } => objects.endpoint(endpoint).payload,
    }
}

/// The number that bytes of a page spell, the least first.
pub(crate) fn number_in(page: &Page, offset: u16, width: Width) -> u32
    requires { offset + bytes_in width ≤ 4096 }
    ensures { result ≡ number_in page.now offset width }
{
    match width {
        Width::Byte => {
            let mut bytes = [0; 1];
            page.read(offset, &mut bytes);
            bytes[0] as u32
        }
        Width::Half => {
            let mut bytes = [0; 2];
            page.read(offset, &mut bytes);
            u16::from_le_bytes(bytes) as u32
        }
        Width::Word => {
            let mut bytes = [0; 4];
            page.read(offset, &mut bytes);
            u32::from_le_bytes(bytes)
        }
    }
}

/// What an operator makes of two numbers.
fn operated(operator: Operator, first: u32, second: u32) -> u32
    ensures { result ≡ operated operator first second }
{
    match operator {
        Operator::Plus => first.wrapping_add(second),
        Operator::Minus => first.wrapping_sub(second),
        Operator::Both => first & second,
    }
}

/// Whether two terms stand so to each other.
pub(crate) fn terms_compare<T: Translator>(
    machine: &Machine<T>,
    comparison: Comparison,
    first: &Term,
    second: &Term,
) -> bool
    requires first { IsTermOf (sizes_of machine.now.objects) first.now }
    requires second { IsTermOf (sizes_of machine.now.objects) second.now }
    ensures { let s = state_of machine.now in
        result ≡ compares comparison (term_value s first.now) (term_value s second.now) }
{
    let first = term_value(machine, first);
    let second = term_value(machine, second);
    compares(comparison, first, second)
}

/// Whether two numbers stand so to each other.
fn compares(comparison: Comparison, first: u32, second: u32) -> bool
    ensures { result ≡ compares comparison first second }
{
    match comparison {
        Comparison::Same => first == second,
        Comparison::Below => first < second,
        Comparison::Most => first <= second,
        Comparison::Less => first.cast_signed() < second.cast_signed(),
    }
}
