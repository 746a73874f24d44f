ghost use Rattle.std.specs.Prelude.{◌≡◌, if◌then◌else◌};
ghost use Rattle.mig_base.specs.WellFormed.{most_terms as most_terms_of};
ghost use Rattle.mig_base.specs.declared.cells.Form.TheVariants as cell_form;
ghost use Rattle.plans.specs.Forms.{room_on as room_of_cell};

use devices::rows_of;
use mig_base::{Kind, Mode, is_22};
use std::marker::Model;

/// What a cell offers a sum: its most terms, and whether it may invert the sum.
#[derive(Drop)]
pub struct Room {
    pub most: u32,
    pub may_invert: bool,
}

impl Model for Room {
    ghost use Rattle.plans.specs.Forms.{Room as Offer};

    ghost Value = { Offer };

    ghost view = { λ r. record { most = r.most; may_invert = r.may_invert } };
}

/// What the cell of a pin offers a unit. A register on a 22V10 can't invert D.
pub fn room_on(kind: Kind, mode: Mode, pin: u8, registered: bool) -> Room
    ensures { result ≡ room_of_cell kind mode pin registered }
{
    Room {
        most: most_terms(kind, mode, pin, registered),
        may_invert: !(is_22(kind) && registered),
    }
}

/// The most terms of a registered or combinational cell.
fn most_terms(kind: Kind, mode: Mode, pin: u8, registered: bool) -> u32
    ensures { result ≡ most_terms_of kind mode pin (if registered then cell_form.Reg else cell_form.Comb) }
{
    if is_22(kind) {
        return rows_of(pin).terms as u32;
    }
    if registered || matches!(mode, Mode::Simple) {
        return 8;
    }
    7
}
