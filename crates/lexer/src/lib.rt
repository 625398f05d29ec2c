// The code of the lexer: what a byte does in each mode, by the definitions of `json_text`.
#![tactic(auto, unfolding(json_text::specs::Bytes::within, json_text::specs::Bytes::is_blank, json_text::specs::Numbers::is_digit, json_text::specs::Numbers::is_digit_1_9, json_text::specs::Numbers::is_e, json_text::specs::Grammar::spelling, json_text::specs::Lexer::or_exp, json_text::specs::Lexer::after_minus, json_text::specs::Lexer::after_zero, json_text::specs::Lexer::after_int, json_text::specs::Lexer::after_frac, json_text::specs::Lexer::after_e, json_text::specs::Lexer::after_exp, json_text::specs::Lexer::digit_only, json_text::specs::Lexer::value_start, json_text::specs::Lexer::at_value, json_text::specs::Lexer::at_first_element, json_text::specs::Lexer::at_first_key, json_text::specs::Lexer::at_key, json_text::specs::Lexer::at_colon, json_text::specs::Lexer::after_root, json_text::specs::Lexer::after_element, json_text::specs::Lexer::after_pair, json_text::specs::Lexer::letter_move,),)]

pub mod number; // number.rt: numbers
pub mod word; // word.rt: true, false and null
pub mod step; // step.rt: a byte anywhere in a text
