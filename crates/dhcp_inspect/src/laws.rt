//! A law of the definitions. A call does nothing.

ghost use Rattle.std.specs.Prelude.{ℕ, List};
ghost use Rattle.dhcp_inspect.specs.Capture.{records_in};
ghost use Rattle.dhcp_inspect.specs.Laws.{Fills};
ghost use Rattle.dhcp_inspect.specs.declared.header.ByteOrder.{ByteOrder};

/// The records of some bytes, one after the other, and what remains after the last fill them; and
/// what remains begins with no whole record. So each byte after a file's header is in one record,
/// or in what remains.
pub fn records_fill_a_file()
    ensures { (order : ByteOrder) (bytes : List ℕ) → Fills order (records_in order bytes) bytes }
{}
