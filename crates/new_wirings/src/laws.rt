ghost use Rattle.new_wirings.specs.NewWirings.{NewWiringsCanBeWritten};

/// The wiring of new chips has a text, where that of the old board has one and the chips are such as can be wired.
pub fn new_wirings_can_be_written()
    ensures { NewWiringsCanBeWritten }
{}
