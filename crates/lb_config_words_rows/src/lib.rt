//! Words, arguments, parameters, conditions and settings of configurations, with the values that they are read as. The answers to
//! whole texts are in `tests/check/`.
//!
//! Tests alone, of `lb_config_words`, `_arguments`, `_parameters`, `_conditions` and `_lines`.
#![tactic(auto)]

#[cfg(test)]
mod arguments;
#[cfg(test)]
mod conditions;
#[cfg(test)]
mod lines;
#[cfg(test)]
mod parameters;
#[cfg(test)]
mod texts;
#[cfg(test)]
mod words;
