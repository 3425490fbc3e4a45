//! Tests by public calls of the station and of what runs. Those of the layers below are in
//! `cb_layer_tests` and `cb_shelf_tests`.
#![tactic(auto)]

#[cfg(test)]
use cb_test_parts::stores;

#[cfg(test)]
mod example;
#[cfg(test)]
mod office;
#[cfg(test)]
mod running;
#[cfg(test)]
mod texts;
