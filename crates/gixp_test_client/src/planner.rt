//! A planner: listed responses, the files of a recorded session, writes and flushes that fail, and the texts of errors.

mod listing;
mod sessions;
