mod order;
mod passing;
