mod bounds;
mod entries;
mod fixtures;
mod messages;
mod second_encodings;
mod shapes;
