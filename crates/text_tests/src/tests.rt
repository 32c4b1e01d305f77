//! Tests of texts, by what they spell.
mod calls;
mod schedules;
mod transcripts;
