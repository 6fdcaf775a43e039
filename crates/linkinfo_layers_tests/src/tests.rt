//! Tests over worked byte strings, values and payloads: what the contracts define as a value, a
//! length, a text, a number or a row is what the format specifies.

mod assertions;
mod data;
mod emission;
mod flag_words;
mod flags;
mod framing;
mod kinds;
mod messages;
mod numbers;
mod payload_numbers;
mod payloads;
mod rows;
mod values;
mod view;
mod words;
