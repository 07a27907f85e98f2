// A table that is read over another.
ghost use Rattle.std.specs.Prelude.{◌≡◌, ◌∷◌, [], ℕ, IfErr, IfOk, OnOk};
ghost use Rattle.std.specs.Option.{option_or};
ghost use Rattle.stm_chip.specs.Document.{HaveOwnIds};
ghost use Rattle.stm_chip.specs.Over.{IsOver, chip_by_id};
ghost use Rattle.stm_chip.specs.declared.fault.TableFault.TheVariants.{Memory};

use crate::TableFault;
use crate::table::{Table, first_with};
use stm_wire::Chip;

/// Adds a chip, unless one of these has its id.
fn add_new(chips: &mut Vec<Chip>, chip: Chip) -> Result<(), TableFault>
    ensures added { OnOk result ((id : ℕ) → chip_by_id chips.new.items id
        ≡ option_or (chip_by_id chips.old.items id) (chip_by_id (chip ∷ []) id)) }
    ensures own_ids { HaveOwnIds chips.old.items → HaveOwnIds chips.new.items }
    ensures fault { IfErr result (λ e. e ≡ Memory) }
{
    if first_with(chips, chip.id()).is_none() {
        chips.push(chip)?;
    }
    Ok(())
}

impl Table {
    /// This table, read over another: for each id the chip of this one, where it has one, and else
    /// that of the other.
    pub fn over(self, lower: Table) -> Result<Table, TableFault>
        ensures over { IfOk result (IsOver self lower) }
        ensures fault { IfErr result (λ e. e ≡ Memory) }
    {
        let mut chips = self.chips;
        for chip in lower.chips {
            add_new(&mut chips, chip)?;
        }
        Ok(Table { chips })
    }
}
