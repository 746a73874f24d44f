ghost use Rattle.std.specs.Prelude.{◌≡◌, ◌≤◌, ◌<◌, ◌+◌, ◌*◌, IsTrue, IfOk, length, map};
ghost use Rattle.mig_base.specs.declared.kinds.Mode.TheVariants.{Fixed};
ghost use Rattle.mig_base.specs.DeviceTables as device;
ghost use Rattle.mig_base.specs.Cells.{columns_of as columns_in, pal_cell};

use devices::{CELL_ROWS, columns_of, combinational, pal_registers, registered, rows, top_pin};
use mig_base::{Cell, Kind, Lit, Mode, NoMemory, enable_pin};
use std::alloc::Global;

/// What the columns of a PAL read.
fn pal_columns(alloc: Global, kind: Kind) -> Result<Vec<Lit>, NoMemory>
    ensures { IfOk result (λ columns. columns.items ≡ columns_in kind Fixed (device.pal_registers kind)) }
{
    columns_of(alloc, kind, Mode::Fixed, pal_registers(kind))
}

/// The macrocell of a pin.
fn cell(
    alloc: Global,
    kind: Kind,
    columns: &[Lit],
    fuses: &[bool],
    pin: u8,
) -> Result<Cell, NoMemory>
    requires kind { IsTrue (device.is_pal kind) }
    requires columns { columns.now ≡ columns_in kind Fixed (device.pal_registers kind) }
    requires fuses { length fuses.now ≡ 64 * device.array_width kind }
    requires pin { (pin ≤ device.top_pin kind) × (device.top_pin kind < pin + 8) }
    ensures { IfOk result (λ cell. cell ≡ pal_cell kind fuses.now pin) }
{
    let place = (top_pin(kind) - pin) as usize;
    let first = CELL_ROWS * place;
    let rows = rows(alloc, columns, fuses, first, CELL_ROWS)?;
    if pal_registers(kind).contains(&pin) {
        registered(alloc, pin, false, enable_pin(kind), rows)
    } else {
        combinational(alloc, pin, true, rows)
    }
}

/// The macrocells, by rising pin.
pub fn cell_list(alloc: Global, kind: Kind, fuses: &[bool]) -> Result<Vec<Cell>, NoMemory>
    requires kind { IsTrue (device.is_pal kind) }
    requires fuses { length fuses.now ≡ 64 * device.array_width kind }
    ensures { IfOk result (λ cells. cells.items ≡ map (pal_cell kind fuses.now) (device.cell_pins kind)) }
{
    let columns = pal_columns(alloc, kind)?;
    let top = top_pin(kind);
    let mut cells = Vec::new(alloc);
    for pin in top - 7..top + 1 {
        cells.push(cell(alloc, kind, &columns, fuses, pin)?)?;
    }
    Ok(cells)
}
