ghost use Rattle.std.specs.Prelude.{◌≡◌, map, filter, IfOk};
ghost use Rattle.std.specs.List.{list_any, filter_map};
ghost use Rattle.mig_base.specs.DeviceTables.{pair_pins as pins_of_pairs};
ghost use Rattle.mig_base.specs.WellFormed.{same_lit as lit_same, same_source as source_same};
ghost use Rattle.new_board.specs.NewChip.{is_registered_unit, needed_variables as variables_needed};
ghost use Rattle.new_board.specs.InputPins.{input_pins as pins_for_inputs, first_unserved as unserved};
ghost use Rattle.new_board.specs.NewFiles.{new_columns, new_lit, new_product, new_terms, is_full as full_product};
ghost use Rattle.new_cells.specs.PinColumns.{pin_columns as columns_on, lit_among};

use avail::{
    ChipNets, Old, PlannedChip, Taken, first_unserved, needed_variables, pin_reads, pins_for,
    same_bool, same_read, unit_register,
};
use devices::{columns, even_reads_q, pair_pins};
use mig_base::{Circuit, Items, Lit, Literal, NoMemory, Product, Read, Source};
use new_board::PlacedUnit;
use std::alloc::Global;

/// The columns of a pin: their source on the new chip, and what they read of the old board.
type PinColumns = (Source, Option<Literal>);

fn pin_columns(nets: &ChipNets, taken: &[Taken], pin: u8) -> PinColumns
    requires { taken.now ≡ pins_for_inputs nets.now.old.now nets.now.chip.now }
    ensures { result ≡ columns_on nets.now.old.now nets.now.chip.now pin }
{
    let source = match nets.register_on(pin) {
        Some(_) => Source::Reg(pin),
        None => Source::Pin(pin),
    };
    (source, pin_reads(nets, taken, pin))
}

fn columns_by_pin(
    alloc: Global,
    nets: &ChipNets,
    taken: &[Taken],
) -> Result<Vec<PinColumns>, NoMemory>
    requires { taken.now ≡ pins_for_inputs nets.now.old.now nets.now.chip.now }
    ensures { IfOk result (λ columns. columns.items ≡ map (columns_on nets.now.old.now nets.now.chip.now) (pins_of_pairs nets.now.chip.now.kind nets.now.chip.now.mode)) }
{
    let chip = nets.chip;
    let mut columns = Vec::new(alloc);
    for pin in pair_pins(chip.kind, chip.mode) {
        columns.push(pin_columns(nets, taken, *pin))?;
    }
    Ok(columns)
}

/// The pins of the registered cells.
fn registered_pins(
    alloc: Global,
    circuit: &Circuit,
    units: &[PlacedUnit],
) -> Result<Vec<u8>, NoMemory>
    ensures { IfOk result (λ pins. pins.items ≡ map (λ x. x.pin) (filter (is_registered_unit circuit.now) units.now)) }
{
    let mut pins = Vec::new(alloc);
    for unit in units {
        if unit_register(circuit, unit.unit).is_some() {
            pins.push(unit.pin)?;
        }
    }
    Ok(pins)
}

/// The literals of the columns.
fn column_lits(alloc: Global, old: &Old, chip: &PlannedChip) -> Result<Vec<Lit>, NoMemory>
    ensures { IfOk result (λ lits. lits.items ≡ new_columns old.now chip.now) }
{
    let registers = registered_pins(alloc, old.circuit, chip.units.as_slice())?;
    let pins = pair_pins(chip.kind, chip.mode);
    let lits = columns(alloc, even_reads_q(chip.kind), registers.as_slice(), pins)?;
    Ok(lits)
}

/// The columns of a new chip: by pin, and what each column reads on the chip; with the variables that its rows need, and
/// their input pins.
#[derive(Drop)]
pub struct Columns<'a> {
    pub nets: ChipNets<'a>,
    needed: Vec<Read>,
    taken: Vec<Taken>,
    by_pin: Vec<PinColumns>,
    lits: Vec<Lit>,
    ghost needed_are: { needed.items ≡ variables_needed nets.old.now.circuit nets.chip.now },
    ghost taken_are: { taken.items ≡ pins_for_inputs nets.old.now nets.chip.now },
    ghost by_pin_are: { by_pin.items ≡ map (columns_on nets.old.now nets.chip.now) (pins_of_pairs nets.chip.now.kind nets.chip.now.mode) },
    ghost lits_are: { lits.items ≡ new_columns nets.old.now nets.chip.now },
}

impl<'a> Columns<'a> {
    /// The columns of a new chip. Fails for want of memory alone.
    pub fn new(
        alloc: Global,
        old: &'a Old<'a>,
        chip: &'a PlannedChip,
    ) -> Result<Columns<'a>, NoMemory>
        ensures old { IfOk result (λ columns. columns.nets.old.now ≡ old.now) }
        ensures chip { IfOk result (λ columns. columns.nets.chip.now ≡ chip.now) }
    {
        let nets = ChipNets::new(old, chip);
        let needed = needed_variables(alloc, old, chip)?;
        let taken = pins_for(alloc, &nets, needed.as_slice())?;
        let by_pin = columns_by_pin(alloc, &nets, taken.as_slice())?;
        let lits = column_lits(alloc, old, chip)?;
        Ok(Columns {
            nets,
            needed,
            taken,
            by_pin,
            lits,
        })
    }

    /// The input pins.
    pub(crate) fn taken(&self) -> &[Taken]
        ensures { result.now ≡ pins_for_inputs self.now.nets.old.now self.now.nets.chip.now }
    {
        self.taken.as_slice()
    }

    /// The first variable that a row needs and no column reads.
    pub fn first_unserved(&self) -> Option<Read>
        ensures { result ≡ unserved self.now.nets.old.now self.now.nets.chip.now }
    {
        first_unserved(&self.nets, self.taken.as_slice(), self.needed.as_slice())
    }

    /// Whether a product over variables would have every fuse intact. Fails for want of memory alone.
    pub(crate) fn is_full(&self, alloc: Global, lits: &[Literal]) -> Result<bool, NoMemory>
        ensures { IfOk result (λ full. full ≡ full_product self.now.nets.old.now self.now.nets.chip.now lits.now) }
    {
        let product = self.product(alloc, lits)?;
        Ok(product.items().len() == self.lits.len())
    }

    /// The literal of the new chip for a literal over variables.
    fn new_lit(&self, lit: Literal) -> Option<Lit>
        ensures { result ≡ new_lit self.now.nets.old.now self.now.nets.chip.now lit }
    {
        first_lit(self.by_pin.as_slice(), lit)
    }

    /// The literals of the new chip for those of a product.
    fn new_lits(&self, alloc: Global, lits: &[Literal]) -> Result<Vec<Lit>, NoMemory>
        ensures { IfOk result (λ found. found.items ≡ filter_map (new_lit self.now.nets.old.now self.now.nets.chip.now) lits.now) }
    {
        let mut found = Vec::new(alloc);
        for lit in lits {
            if let Some(lit) = self.new_lit(*lit) {
                found.push(lit)?;
            }
        }
        Ok(found)
    }

    /// A product of the new chip: each literal once, by rising column.
    pub(crate) fn product(&self, alloc: Global, lits: &[Literal]) -> Result<Product, NoMemory>
        ensures { IfOk result (λ product. product ≡ new_product self.now.nets.old.now self.now.nets.chip.now lits.now) }
    {
        let found = self.new_lits(alloc, lits)?;
        let kept = those_among(alloc, self.lits.as_slice(), found.as_slice())?;
        let product = Product::new(alloc, kept.as_slice())?;
        Ok(product)
    }

    /// The products of the new chip.
    pub(crate) fn terms(
        &self,
        alloc: Global,
        terms: &[Items<Literal>],
    ) -> Result<Items<Product>, NoMemory>
        ensures { IfOk result (λ products. products ≡ new_terms self.now.nets.old.now self.now.nets.chip.now terms.now) }
    {
        let mut products = Vec::with_capacity(alloc, terms.len())?;
        for term in terms {
            products.push(self.product(alloc, term.items())?)?;
        }
        Ok(Items::new(products))
    }
}

/// The literal by the first columns that read the variable.
fn first_lit(by_pin: &[PinColumns], lit: Literal) -> Option<Lit>
    ensures { result ≡ lit_among by_pin.now lit }
{
    for (source, read) in by_pin {
        if let Some(read) = read {
            if same_read(read.source, lit.source) {
                let high = same_bool(lit.high, read.high);
                return Some(Lit {
                    source: *source,
                    high,
                });
            }
        }
    }
    None
}

/// Whether two literals of a chip are one.
fn same_lit(a: &Lit, b: &Lit) -> bool
    ensures { result ≡ lit_same a.now b.now }
{
    same_source(a.source, b.source) && a.high == b.high
}

fn same_source(a: Source, b: Source) -> bool
    ensures { result ≡ source_same a b }
{
    match (a, b) {
        (Source::Pin(p), Source::Pin(q)) => p == q,
        (Source::Reg(p), Source::Reg(q)) => p == q,
        _ => false,
    }
}

fn is_among(lits: &[Lit], lit: &Lit) -> bool
    ensures { result ≡ list_any (lit_same lit.now) lits.now }
{
    lits.iter().any(|other| same_lit(lit, other))
}

/// Those of the columns that are among these literals.
fn those_among(alloc: Global, columns: &[Lit], lits: &[Lit]) -> Result<Vec<Lit>, NoMemory>
    ensures { IfOk result (λ kept. kept.items ≡ filter (λ y. list_any (lit_same y) lits.now) columns.now) }
{
    let mut kept = Vec::new(alloc);
    for column in columns {
        if is_among(lits, column) {
            kept.push(*column)?;
        }
    }
    Ok(kept)
}
