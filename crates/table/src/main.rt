// The table program (document 02, Item 8): prints the quarter table, T(0) to T(256), one number a line.
#![tactic(auto)]

use std::process::ExitCode;

// Has the table put into its bytes, and writes them.
fn main(rt: HostRuntime) -> ExitCode {
    let mut out = [0; table_text::ROOM];
    let used = table_text::put_table(&mut out);
    printing::write_out(&rt, &out[..used], "table: the table cannot be written")
}
