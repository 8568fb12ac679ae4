mod calls;
mod roots;
