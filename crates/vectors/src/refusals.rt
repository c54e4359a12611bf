// Want of memory: each call of the libraries that takes memory is made again if an allocation was
// refused. So each test passes whichever single allocation of its calls is refused, and if none is.
// `tests/program/refusals` runs them with each allocation refused in turn. A test ends as refused
// if an allocation of its own is. That script tries the program's calls in the program itself.
mod folders;
mod names;
mod texts;
