// The table check as C calls it. Public call, which requires nothing: bandrolt_check_table, with the promise of flat_table's.
// The slice is a pointer and a length in C; include/bandrolt.h declares it.
#![tactic(auto)]

ghost use Rattle.std.specs.Prelude.{◌≡◌};
ghost use Rattle.flat_table.specs.Table.{table_verdict};

use flat_table::TableAnswer;

// 01's table check of a table of name width 12: its number, its place, and the number of records.
#[unsafe(no_mangle)]
pub extern "C" fn bandrolt_check_table(table: &[u8]) -> TableAnswer
    ensures { result ≡ table_verdict 12 table.now }
{
    flat_table::bandrolt_check_table(table)
}
