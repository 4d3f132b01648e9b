mod failures;
mod folder;
mod new_cards;
mod refusing;
mod rows;
mod saving;
mod words;
