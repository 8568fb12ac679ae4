mod generated;
mod lines;
mod playbacks;
mod recordings;
mod totals;
