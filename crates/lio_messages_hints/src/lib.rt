//! Messages, and what is wrong with a word of a script or with the text of a label. What a hint
//! says has no contract; rows show it.
#![tactic(auto)]

mod bytes;
mod foreign;
mod label;
mod label_word;
mod message;
mod mistake;
mod number;
mod operand;
mod sign;
mod similar;
mod text;
mod words;

pub use bytes::Bytes;
pub use foreign::{FIRST, FUNCTIONS, Foreign, NEW, READERS, SIGNS, VALUES, mend_in};
pub use label::{formula_text_mistake, label_mistake, label_text_mistake};
pub use message::{Message, Piece, filled};
pub use mistake::{Found, Mistake, told, told_one, told_two};
pub use operand::{MAPS, TWO_LINES, is_operand, is_value_like, name_mistake, operand_mistake};
pub use sign::{joined_mistake, method_mistake};
pub use similar::{is_procedure_name, is_similar, near_word, same_word, similar_procedure};
pub use words::{Word, append_words, comment_before, place_of_byte, words_of};
