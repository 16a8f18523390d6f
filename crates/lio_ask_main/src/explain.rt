//! What a policy lets flow, whatever its scripts do, as a text and as a table for programs. That
//! the table has what `what_may_flow` gives is a clause; of the text it is tested.

mod able;
mod files;
mod flows;
mod formulas;
mod holdings;
mod prose;
mod table;

pub(crate) use prose::explain_text;
pub(crate) use table::table_text;
