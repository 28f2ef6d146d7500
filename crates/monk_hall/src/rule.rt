//! The rule that every step of the table keeps.
ghost use Rattle.monk_hall.specs.{Records.first_view, Rule.setting_of, Schedules.IsReached};

use crate::boxed_floor::BoxedFloor;
use crate::record::View;
use crate::setup::Setup;
use atomic_table::{Seat, Shared, Table, TableRule};
use monk_kinds::Kind;
use monk_object::Guarded;
use std::alloc::Global;
use std::marker::PhantomData;

/// The rule of a hall's table: some schedule of the table's steps leads to it from the table with which the hall was
/// made. `laws::every_schedule_is_one_history` says what that means.
pub struct HallRule<K, T> {
    marker: PhantomData<(K, T)>,
}

impl<K: Kind, T: Guarded> TableRule<Option<BoxedFloor<K, T>>, View, Setup<T>> for HallRule<K, T> {
    ghost holds = { λ setup s. IsReached K.rules T.meaning
        (setting_of (T.state setup.opening.value) setup.seats setup.conds setup.budget) s };

    ghost first = { λ setup. first_view
        (setting_of (T.state setup.opening.value) setup.seats setup.conds setup.budget) };
}

/// A seat of the table.
pub(crate) type TableSeat<K, T> = Seat<Option<BoxedFloor<K, T>>, View>;

/// The table that threads share.
pub(crate) type SharedTable<K, T> = Shared<
    Option<BoxedFloor<K, T>>,
    View,
    Setup<T>,
    HallRule<K, T>,
>;

/// The table with its memory.
pub(crate) type HallTable<K, T> = Table<
    Option<BoxedFloor<K, T>>,
    View,
    Setup<T>,
    HallRule<K, T>,
    Global,
>;
