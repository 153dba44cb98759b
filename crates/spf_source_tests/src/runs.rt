//! Live runs, of the gate's too, that get no supervisor or no place. All other runs are rows of
//! tests/rows.

mod doubles;
mod gate_live;
mod live;
