// The static library for C and for other languages that call as C does. Each function is one of `powerlink`, under its name and
// with its contract; include/powerlink.h declares it. They stand here a second time, since a crate that others build on exports nothing.
#![tactic(auto)]

mod collecting;
mod frames;
mod headers;
mod journal;
mod reading;
mod reporting;
mod sections;
mod status;
mod tables;
