// Tables and lists under the names of variables and goals.
pub(crate) mod binding_table;
pub(crate) mod entry_list;
pub(crate) mod first_values;
pub(crate) mod goal_map;
pub(crate) mod goal_places;
pub(crate) mod known;
pub(crate) mod name_hasher;
pub(crate) mod near_numbers;
pub(crate) mod variable_list;
pub(crate) mod variable_map;
pub(crate) mod variables;
