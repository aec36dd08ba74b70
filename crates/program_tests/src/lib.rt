//! Tests of what the programs are made of, by the public calls of `pcap_frames`, `pcap_lines`, `pcap_export` and `command_words`, which
//! are proved without them: sinks that fail, starts that no words say, and words that are commands. Files, captures and other words
//! are in the table of `run_vectors`.
#![tactic(auto)]

#[cfg(test)]
mod exports;
#[cfg(test)]
mod files;
#[cfg(test)]
mod lines;
#[cfg(test)]
mod made;
#[cfg(test)]
mod words;
