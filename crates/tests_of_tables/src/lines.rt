// Texts whose lines are done to devices in memory.
pub mod answers;
pub mod bench;
pub mod configs;
pub mod copies;
pub mod devices;
pub mod numbers;
pub mod restarts;
pub mod runs;
pub mod words;
