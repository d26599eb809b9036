mod add_wins_set;
mod enable_wins_flag;
mod fixtures;
