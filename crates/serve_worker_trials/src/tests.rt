mod every_worker;
mod far;
mod shooters;
