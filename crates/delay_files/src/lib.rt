// The delay file (document 02, §2): a reader and a writer of the remembered delays. The edition is a parameter of the inner functions.
#![tactic(auto)]

ghost use Rattle.std.specs.Prelude.{◌≡◌};
ghost use Rattle.byte_order.specs.Bytes.{AllBytes};
ghost use Rattle.rules_record.specs.Lending.{lists_seen};
ghost use Rattle.rules_files.specs.ReadFile.{left_read, read_reply};
ghost use Rattle.rules_files.specs.Table.{TableWidths};
ghost use Rattle.rules_files.specs.WriteFile.{left_written, write_reply};

use reading::Edition;
use refusals::Refusal;
use rules_record::{AllView, Inputs};

mod reading;
mod writing;

// Version 1: a head of 7 bytes, without a rate.
fn first_edition() -> Edition
    ensures { (result.version ≡ 1) × (result.head ≡ 7) × (result.rate ≡ 0) }
{
    Edition {
        version: 1,
        head: 7,
        rate: 0,
    }
}

// The flows and the delays of a file of version 1, unused places zero. That a file's numbers are bytes follows from its type.
pub fn read_delays(file: &[u8], flows: &mut [u8], delays: &mut [u32]) -> Result<usize, Refusal>
    ensures delays_after { left_read result flows.new delays.new ≡ read_reply 1 7 file.now flows.old delays.old }
    ensures all_bytes { AllBytes file.now }
{
    reading::read(first_edition(), file, flows, delays)
}

// The file of version 1 of the remembered delays, then zeros, in a list of 1,287 bytes. That the table's numbers have their widths follows from its type.
pub fn write_delays(inputs: Inputs, lists: AllView<'_>, file: &mut [u8]) -> Result<usize, Refusal>
    ensures file_after { left_written result file.new ≡ write_reply 1 7 0 inputs (lists_seen lists.entry) file.old }
    ensures table_widths { TableWidths inputs.flows }
{
    writing::write(first_edition(), inputs, lists, file)
}
