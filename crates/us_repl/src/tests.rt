mod batches;
mod sent;
