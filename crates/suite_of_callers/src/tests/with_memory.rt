//! What asks for memory, as no other test here does: columns as bytes against what the model of tests/columns makes of the same values
//! (`columns`, with its `rows`), columns between slices that come back (`streams`), words that are taken, as a caller writes it
//! (`words`), what `flcolumn` does when it is asked for something (`requests`), and what commands of `flblock` read and write
//! (`commands`).

mod columns;
mod commands;
mod requests;
mod rows;
mod streams;
mod words;
