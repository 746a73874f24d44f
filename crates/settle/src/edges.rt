ghost use Rattle.std.specs.Prelude.{ℕ, ◌≡◌, ◌⊎◌, ◌<◌, true, length, slice_set, if◌then◌else◌};
ghost use Rattle.mig_base.specs.Levels.{level_at as level_in_place};
ghost use Rattle.level_laws.specs.Runs.{clock_by as clock_from, clock_level as level_of_clock, rises as clock_rises, taken as level_taken, next_stored};
ghost use Rattle.reader_lists.specs.declared.lists.Reader.{Reader as ReaderOf};
ghost use Rattle.reader_lists.specs.declared.lists.Reader.TheVariants.{ByRegister as OfRegister};
ghost use Rattle.reader_lists.specs.Marked.{marked_in};

use crate::values::{inverted, level_at, row_value, same_level, sum_value};
use mig_base::{Circuit, Items, Level, Levels, NetKind, Register, and3, not3, or3};
use reader_lists::Marks;

/// The level of a clock net of this kind.
fn clock_by(inputs: &[Level], kind: NetKind) -> Level
    ensures { result ≡ clock_from inputs.now kind }
{
    match kind {
        NetKind::Ground => Level::Zero,
        NetKind::Power => Level::One,
        NetKind::Handed(place) => level_at(inputs, place),
        NetKind::Shared(_) | NetKind::Inner => Level::X,
    }
}

/// The level of a clock net under these inputs.
fn clock_level(circuit: &Circuit, inputs: &[Level], net: u32) -> Level
    ensures { result ≡ level_of_clock circuit.now inputs.now net }
{
    let nets = circuit.nets.items();
    let net = net as usize;
    if net < nets.len() {
        clock_by(inputs, nets[net].kind)
    } else {
        Level::X
    }
}

/// Whether a clock was 0 and is 1 now.
fn rises(circuit: &Circuit, before: &[Level], now: &[Level], net: u32) -> bool
    ensures { result ≡ clock_rises circuit.now before.now now.now net }
{
    let was = clock_level(circuit, before, net);
    let is = clock_level(circuit, now, net);
    matches!((was, is), (Level::Zero, Level::One))
}

/// What a register takes at an edge of its clock.
fn taken(levels: &Levels, register: &Register) -> Level
    ensures { result ≡ level_taken levels.now register.now }
{
    let data = inverted(register.low, sum_value(levels, register.terms.items()));
    let set = or3(data, row_value(levels, &register.preset));
    and3(set, not3(row_value(levels, &register.reset)))
}

/// Whether a clock rises. Most registers that stand side by side have one clock, so the last answer is kept.
#[derive(Clone, Copy)]
struct Edge {
    clock: u32,
    rises: bool,
}

/// Whether a clock rises, where the answer for another one is at hand.
fn edge_of(circuit: &Circuit, before: &[Level], now: &[Level], last: Edge, clock: u32) -> Edge
    requires { last.rises ≡ clock_rises circuit.now before.now now.now last.clock }
    ensures clock { result.clock ≡ clock }
    ensures rises { result.rises ≡ clock_rises circuit.now before.now now.now result.clock }
{
    if last.clock == clock {
        return last;
    }
    Edge {
        clock,
        rises: rises(circuit, before, now, clock),
    }
}

/// What a register with this visible Q stores next.
fn next_level(levels: &Levels, register: &Register, seen: Level, rises: bool) -> Level
    ensures { result ≡ (if rises then level_taken levels.now register.now else seen) }
{
    if rises { taken(levels, register) } else { seen }
}

/// Puts a level in place of what a register stores, and marks the register where that changes.
fn store(stored: &mut Items<Level>, marks: &mut Marks, place: usize, level: Level)
    requires { place < length stored.old }
    ensures stored { stored.new ≡ slice_set stored.old place level }
    ensures mark { (level_in_place stored.old place ≡ level) ⊎ (marked_in marks.new (OfRegister place) ≡ true) }
    ensures keeps { (r : ReaderOf) → marked_in marks.old r ≡ true → marked_in marks.new r ≡ true }
{
    let was = stored.items()[place];
    stored.set(place, level);
    if !same_level(was, level) {
        marks.mark_register(place);
    }
}

/// Puts what every register stores next in place of what it stores, and marks each register where that changes.
pub(crate) fn store_next(
    circuit: &Circuit,
    levels: &Levels,
    before: &[Level],
    now: &[Level],
    stored: &mut Items<Level>,
    marks: &mut Marks,
)
    requires visible { length levels.now.visible ≡ length circuit.now.registers }
    requires stored { length stored.old ≡ length circuit.now.registers }
    ensures next { stored.new ≡ next_stored circuit.now levels.now before.now now.now circuit.now.registers levels.now.visible }
    ensures marked { (k : ℕ) → (level_in_place stored.old k ≡ level_in_place stored.new k) ⊎ (marked_in marks.new (OfRegister k) ≡ true) }
{
    let seen = levels.visible.items();
    let mut edge = Edge {
        clock: 0,
        rises: rises(circuit, before, now, 0),
    };
    for (place, register) in circuit.registers.items().iter().enumerate() {
        edge = edge_of(circuit, before, now, edge, register.clock);
        let level = next_level(levels, register, seen[place], edge.rises);
        store(stored, marks, place, level);
    }
}
