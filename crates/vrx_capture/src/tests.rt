//! What no capture of `examples` can show: moments and settings as values, and reads that fail or give one octet.
//! Expected values were worked out by hand.

mod reader;
mod settings;
