mod crashes;
mod disk;
mod streams;
