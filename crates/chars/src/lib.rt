// The class of each byte, and the characters of strings and keys, by the definitions of `json_text`.
#![tactic(auto, unfolding(json_text::specs::Bytes::within, json_text::specs::Lexer::escape_move, json_text::specs::Lexer::hex_of, json_text::specs::Lexer::lead_bits, json_text::specs::Lexer::only, json_text::specs::Lexer::pair_of, json_text::specs::Lexer::ranged, json_text::specs::Lexer::tail_bits, json_text::specs::Lexer::unescape,),)]

pub mod class; // class.rt: the class of each byte, from a table
pub mod string; // string.rt: strings and keys
