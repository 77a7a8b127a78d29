// The C face: each call returns its reply's number, with the values in a lent slice of three places. `capi_c` exports them to C.
#![tactic(auto)]

mod header;
mod jpeg;
mod kind;
mod lines;
mod reply;
mod set;
mod short;
mod shown;
mod state;
mod totals;

pub use header::dequant_read_header;
pub use jpeg::dequant_jpeg_quant_values;
pub use kind::dequant_expand_kind;
pub use lines::{dequant_read_record, dequant_write_record};
pub use set::dequant_expand;
pub use short::{dequant_short_add, dequant_short_drop, dequant_short_lookup};
pub use shown::dequant_lookup;
pub use totals::{dequant_replace_kind, dequant_total};
